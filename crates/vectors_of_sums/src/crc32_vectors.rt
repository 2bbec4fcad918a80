// CRC-32: the catalogue's check value, whole and in parts, and sums that zlib gives.
use crate::counting;
use crate::printing::Lines;

fn line(out: &mut Lines, name: &str, sum: u32) {
    write!(out, "crc32 {name} ");
    out.fill(&mut [0; 8], format_args!("{sum:08x}"));
    writeln!(out);
}

pub fn run(out: &mut Lines) {
    line(out, "check", crc32::crc32(b"123456789"));
    let front = crc32::update(crc32::START, b"1234");
    let sum = crc32::update(front, b"56789");
    line(out, "check_in_parts", crc32::finish(sum));
    line(out, "nothing", crc32::crc32(b""));
    line(out, "nought", crc32::crc32(b"\x00"));
    line(out, "four_ones", crc32::crc32(b"\xFF\xFF\xFF\xFF"));
    line(out, "noughts_32", crc32::crc32(&[0; 32]));
    line(out, "counting_256", crc32::crc32(&counting::<256>()));
}
