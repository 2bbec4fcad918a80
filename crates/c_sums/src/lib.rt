// What C calls: sums, and text that is checked. Each is the library's call under a plain name.
#![tactic(auto)]

ghost use Rattle.std.specs.Prelude.{◌≡◌, take};
ghost use Rattle.crc.specs.Crc.{crc32_of};
ghost use Rattle.utf8_spec.specs.Utf8.{is_utf8};
ghost use Rattle.sha1_digest.specs.Sha1.{sha1};
ghost use Rattle.hmac.specs.Hmac.{hmac_of};
ghost use Rattle.big_endian.specs.Numbers.{with_length};

#[repr(C)]
#[derive(Clone, Copy, Debug, PartialEq, Eq)]
pub struct Digest {
    pub bytes: [u8; 20],
}

pub fn cratehoist_crc32(bytes: &[u8]) -> u32
    ensures { result ≡ crc32_of bytes.now }
{
    crc32::crc32(bytes)
}

pub fn cratehoist_is_utf8(bytes: &[u8]) -> bool
    ensures { result ≡ is_utf8 bytes.now }
{
    utf8::is_utf8(bytes)
}

pub fn cratehoist_sha1(bytes: &[u8]) -> Digest
    ensures { result.bytes ≡ sha1 bytes.now }
{
    Digest {
        bytes: sha1_digest::hash(bytes),
    }
}

pub fn cratehoist_hmac(key: &[u8], bytes: &[u8]) -> Digest
    ensures { result.bytes ≡ hmac_of key.now bytes.now }
{
    Digest {
        bytes: hmac::hmac(key, bytes),
    }
}

pub fn cratehoist_hmac_front(key: &[u8], datagram: &[u8], place: usize, length: u16) -> Digest
    ensures { result.bytes ≡ hmac_of key.now (with_length (take place datagram.now) length) }
{
    Digest {
        bytes: hmac::hmac_front(key, datagram, place, length),
    }
}
