// The magic cookie, compared on reading and written by begin.
#![tactic(auto)]

ghost use Rattle.std.specs.Prelude.{◌≡◌};
ghost use Rattle.buffers.specs.Put.{fits_at, put};
ghost use Rattle.cookie.specs.Cookie.{cookie, cookie_at};

// The cookie's bytes (RFC 5389 section 6).
pub const MAGIC_COOKIE: [u8; 4] = *b"\x21\x12\xA4\x42";

// Are the four bytes at a place the cookie's?
pub fn cookie_at(d: &[u8], at: usize) -> bool
    ensures { result ≡ cookie_at d.now at }
{
    match d.get(at..) {
        Some(rest) => rest.starts_with(&MAGIC_COOKIE),
        None => false,
    }
}

// Puts the cookie at a place of the buffer; where it doesn't fit, nothing changes and the answer is false.
pub fn put_cookie(buf: &mut [u8], at: usize) -> bool
    ensures { (result ≡ fits_at buf.old at cookie) × (buf.new ≡ put buf.old at cookie) }
{
    buffers::put_bytes(buf, at, &MAGIC_COOKIE)
}
