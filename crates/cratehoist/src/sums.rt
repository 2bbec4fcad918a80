// Sums, and text that is checked.

ghost use Rattle.std.specs.Prelude.{◌≡◌, take};
ghost use Rattle.crc.specs.Crc.{crc32_of};
ghost use Rattle.utf8_spec.specs.Utf8.{is_utf8};
ghost use Rattle.sha1_digest.specs.Sha1.{sha1};
ghost use Rattle.hmac.specs.Hmac.{hmac_of};
ghost use Rattle.big_endian.specs.Numbers.{with_length};

use c_sums::Digest;

#[unsafe(no_mangle)]
pub extern "C" fn cratehoist_crc32(bytes: &[u8]) -> u32
    ensures { result ≡ crc32_of bytes.now }
{
    c_sums::cratehoist_crc32(bytes)
}

#[unsafe(no_mangle)]
pub extern "C" fn cratehoist_is_utf8(bytes: &[u8]) -> bool
    ensures { result ≡ is_utf8 bytes.now }
{
    c_sums::cratehoist_is_utf8(bytes)
}

#[unsafe(no_mangle)]
pub extern "C" fn cratehoist_sha1(bytes: &[u8]) -> Digest
    ensures { result.bytes ≡ sha1 bytes.now }
{
    c_sums::cratehoist_sha1(bytes)
}

#[unsafe(no_mangle)]
pub extern "C" fn cratehoist_hmac(key: &[u8], bytes: &[u8]) -> Digest
    ensures { result.bytes ≡ hmac_of key.now bytes.now }
{
    c_sums::cratehoist_hmac(key, bytes)
}

#[unsafe(no_mangle)]
pub extern "C" fn cratehoist_hmac_front(
    key: &[u8],
    datagram: &[u8],
    place: usize,
    length: u16,
) -> Digest
    ensures { result.bytes ≡ hmac_of key.now (with_length (take place datagram.now) length) }
{
    c_sums::cratehoist_hmac_front(key, datagram, place, length)
}
