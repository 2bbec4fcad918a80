// RFC 5769's messages: read, checked under their keys and under a key with one bit changed, their addresses and realms.
use crate::printing::Lines;
use read_integrity::check_integrity;
use read_realm::realm_to_use;
use read_typed::Value;
use registry::ErrorCode;
use registry::errors::{
    BadRequest, ServerError, StaleNonce, TryAlternate, Unauthorized, UnknownAttribute,
};
use registry::methods::BINDING;
use wire::refusal::number_of;
use wire::transaction_id::TransactionId;

const XOR_MAPPED_ADDRESS: u16 = 0x0020;

const ERROR_CODE: u16 = 0x0009;

// The reader's answer.
fn read(out: &mut Lines, section: &str, d: &[u8]) {
    write!(out, "message {section}");
    match read_message::read(d) {
        Ok(reading) => match reading.attributes {
            Ok(count) => {
                write!(out, " whole");
                let (class, method) = (reading.class.as_u16(), reading.method.code);
                write!(out, " {class} {method} {count} ");
                out.hex(&reading.id.bytes);
            }
            Err(fault) => {
                write!(out, " broken");
                write!(out, " {} {}", fault.reason.number, fault.place);
            }
        },
        Err(refusal) => {
            write!(out, " refused");
            write!(out, " {}", refusal.number);
        }
    }
    writeln!(out);
}

// What the check of a signature comes to.
fn signed(d: &[u8], key: &[u8]) -> u8 {
    number_of(check_integrity(d, key))
}

fn checked(out: &mut Lines, section: &str, what: &str, d: &[u8], key: &[u8]) {
    writeln!(out, "message {section}{what} {}", signed(d, key));
}

// A datagram with FINGERPRINT is whole only where that is right.
fn fingerprint(out: &mut Lines, section: &str, d: &[u8]) {
    let answer = if read_first::has(d, 0x8028) {
        " yes\n"
    } else {
        " no\n"
    };
    write!(out, "message {section}_fingerprint{answer}");
}

fn realm(out: &mut Lines, section: &str, d: &[u8], site: &[u8]) {
    write!(out, "message {section}_realm ");
    out.put(realm_to_use(d, site));
    writeln!(out);
}

// XOR-MAPPED-ADDRESS: family, port and IP.
fn address(out: &mut Lines, section: &str, d: &[u8]) {
    let Ok(reading) = read_message::read(d) else {
        return;
    };
    let value = read_first::first_value(d, XOR_MAPPED_ADDRESS);
    if let Ok(Value::Address(a)) = read_typed::value_of(XOR_MAPPED_ADDRESS, value, reading.id) {
        write!(out, "message {section}_address");
        write!(out, " {} {} ", a.family.as_u8(), a.port);
        out.hex(&a.ip);
        writeln!(out);
    }
}

fn message(out: &mut Lines, section: &str, d: &[u8], key: &[u8], other: &[u8], site: &[u8]) {
    read(out, section, d);
    checked(out, section, "_integrity", d, key);
    checked(out, section, "_other_key", d, other);
    fingerprint(out, section, d);
    realm(out, section, d, site);
    address(out, section, d);
}

fn request(out: &mut Lines) {
    message(
        out,
        "2.1",
        b"\x00\x01\x00X!\x12\xA4B\xB7\xE7\xA7\x01\xBC4\xD6\x86\xFA\x87\xDF\xAE\x80\x22\x00\x10STUN\
        \x20test client\x00$\x00\x04n\x00\x01\xFF\x80)\x00\x08\x93/\xF9\xB1Q&;6\x00\x06\x00\x09e\
        vtj:h6vY   \x00\x08\x00\x14\x9A\xEA\xA7\x0C\xBF\xD8\xCBVx\x1E\xF2\xB5\xB2\xD3\xF2I\xC1\
        \xB5q\xA2\x80(\x00\x04\xE5z;\xCF",
        b"VOkJxbRl1RmTxUk/WvJxBt",
        b"WOkJxbRl1RmTxUk/WvJxBt",
        b"configured",
    )
}

fn ipv4_response(out: &mut Lines) {
    message(
        out,
        "2.2",
        b"\x01\x01\x00<!\x12\xA4B\xB7\xE7\xA7\x01\xBC4\xD6\x86\xFA\x87\xDF\xAE\x80\x22\x00\x0Btest\
        \x20vector \x00 \x00\x08\x00\x01\xA1G\xE1\x12\xA6C\x00\x08\x00\x14+\x91\xF5\x99\xFD\x9E\
        \x90\xC3\x8Ct\x89\xF9*\xF9\xBAS\xF0k\xE7\xD7\x80(\x00\x04\xC0}L\x96",
        b"VOkJxbRl1RmTxUk/WvJxBt",
        b"WOkJxbRl1RmTxUk/WvJxBt",
        b"configured",
    )
}

fn ipv6_response(out: &mut Lines) {
    message(
        out,
        "2.3",
        b"\x01\x01\x00H!\x12\xA4B\xB7\xE7\xA7\x01\xBC4\xD6\x86\xFA\x87\xDF\xAE\x80\x22\x00\x0Btest\
        \x20vector \x00 \x00\x14\x00\x02\xA1G\x01\x13\xA9\xFA\xA5\xD3\xF1y\xBC%\xF4\xB5\xBE\xD2\
        \xB9\xD9\x00\x08\x00\x14\xA3\x82\x95NK\xE6{\xF1\x17\x84\xC9|\x82\x92\xC2u\xBF\xE3\xEDA\
        \x80(\x00\x04\xC8\xFB\x0BL",
        b"VOkJxbRl1RmTxUk/WvJxBt",
        b"WOkJxbRl1RmTxUk/WvJxBt",
        b"configured",
    )
}

fn long_term_request(out: &mut Lines) {
    message(
        out,
        "2.4",
        b"\x00\x01\x00`!\x12\xA4Bx\xAD43\xC6\xADr\xC0)\xDAA.\x00\x06\x00\x12\xE3\x83\x9E\xE3\x83\
        \x88\xE3\x83\xAA\xE3\x83\x83\xE3\x82\xAF\xE3\x82\xB9\x00\x00\x00\x15\x00\x1Cf//499k954d6\
        OL34oL9FSTvy64sA\x00\x14\x00\x0Bexample.org\x00\x00\x08\x00\x14\xF6p$em\xD6J>\x02\xB8\
        \xE0q.\x85\xC9\xA2\x8C\xA8\x96f",
        b"\xE8\xCAz\xD5\x9D^\xB0Q\x8E1)\x11\xD2\xDA\xB2\xA9",
        b"\xE9\xCAz\xD5\x9D^\xB0Q\x8E1)\x11\xD2\xDA\xB2\xA9",
        b"configured",
    );
}

// 2.1 with one bit of its FINGERPRINT changed.
fn changed(out: &mut Lines) {
    let d =
        b"\x00\x01\x00X!\x12\xA4B\xB7\xE7\xA7\x01\xBC4\xD6\x86\xFA\x87\xDF\xAE\x80\x22\x00\x10STUN\
        \x20test client\x00$\x00\x04n\x00\x01\xFF\x80)\x00\x08\x93/\xF9\xB1Q&;6\x00\x06\x00\x09e\
        vtj:h6vY   \x00\x08\x00\x14\x9A\xEA\xA7\x0C\xBF\xD8\xCBVx\x1E\xF2\xB5\xB2\xD3\xF2I\xC1\
        \xB5q\xA2\x80(\x00\x04\xE5z;\xCE";
    let section = "fingerprint_changed";
    read(out, section, d);
    checked(out, section, "_integrity", d, b"VOkJxbRl1RmTxUk/WvJxBt");
}

fn no_integrity(out: &mut Lines) {
    checked(
        out,
        "no_integrity",
        "",
        b"\x00\x01\x00\x00!\x12\xA4B\x00\x01\x02\x03\x04\x05\x06\x07\x08\x09\x0A\x0B",
        b"key",
    );
}

// A key, and another one.
fn keyed(out: &mut Lines, name: &str, d: &[u8], key: &[u8], other: &[u8]) {
    checked(out, name, "", d, key);
    checked(out, name, "_other", d, other);
}

// Keys of 0, 64 and 65 bytes, 0, 1, 2 and so on. The digests are those of Python's hmac.
fn key_0(out: &mut Lines) {
    keyed(
        out,
        "key_0",
        b"\x00\x01\x00\x18!\x12\xA4B\x00\x01\x02\x03\x04\x05\x06\x07\x08\x09\x0A\x0B\x00\x08\x00\
        \x14\x22,\xCE\xE8b<\xF3\x01\xE1\xD2\xF8\x9AE\x16&,\x0Fn\xB9~",
        b"",
        b"\x01",
    );
}

fn key_64(out: &mut Lines) {
    keyed(
        out,
        "key_64",
        b"\x00\x01\x00\x18!\x12\xA4B\x00\x01\x02\x03\x04\x05\x06\x07\x08\x09\x0A\x0B\x00\x08\x00\
        \x14$\x99\xF3^\x84F;o[\xA5\xEC\x1C:\xD8\x0A\x80\xCD\xDD\xE2\xEC",
        b"\x00\x01\x02\x03\x04\x05\x06\x07\x08\x09\x0A\x0B\x0C\x0D\x0E\x0F\x10\x11\x12\x13\x14\x15\
        \x16\x17\x18\x19\x1A\x1B\x1C\x1D\x1E\x1F !\x22#$%&'()*+,-./0123456789:;<=>?",
        b"\x00\x01\x02\x03\x04\x05\x06\x07\x08\x09\x0A\x0B\x0C\x0D\x0E\x0F\x10\x11\x12\x13\x14\x15\
        \x16\x17\x18\x19\x1A\x1B\x1C\x1D\x1E\x1F !\x22#$%&'()*+,-./0123456789:;<=>>",
    )
}

fn key_65(out: &mut Lines) {
    keyed(
        out,
        "key_65",
        b"\x00\x01\x00\x18!\x12\xA4B\x00\x01\x02\x03\x04\x05\x06\x07\x08\x09\x0A\x0B\x00\x08\x00\
        \x14\x02\xA7\xD42\xEFBz\x0B59!\x7FNO\xEEwz\xBAt\xCE",
        b"\x00\x01\x02\x03\x04\x05\x06\x07\x08\x09\x0A\x0B\x0C\x0D\x0E\x0F\x10\x11\x12\x13\x14\x15\
        \x16\x17\x18\x19\x1A\x1B\x1C\x1D\x1E\x1F !\x22#$%&'()*+,-./0123456789:;<=>?@",
        b"\x00\x01\x02\x03\x04\x05\x06\x07\x08\x09\x0A\x0B\x0C\x0D\x0E\x0F\x10\x11\x12\x13\x14\x15\
        \x16\x17\x18\x19\x1A\x1B\x1C\x1D\x1E\x1F !\x22#$%&'()*+,-./0123456789:;<=>?A",
    )
}

// MESSAGE-INTEGRITY twice: the first decides (docs/DIFFERENCES.md, 5.7).
fn twice(out: &mut Lines) {
    checked(
        out,
        "twice_wrong_first",
        "",
        b"\x00\x01\x00\x30\x21\x12\xA4\x42\x00\x00\x00\x00\x00\x00\x00\x00\x00\x00\x00\x00\x00\x08\
        \x00\x14\x00\x00\x00\x00\x00\x00\x00\x00\x00\x00\x00\x00\x00\x00\x00\x00\x00\x00\x00\x00\
        \x00\x08\x00\x14\x61\xEA\xB7\x10\xBD\xD8\x4D\xA1\x28\x95\x96\x86\x86\xC9\x5B\x5C\x77\xB0\
        \xCE\xD1",
        b"k",
    );
    checked(
        out,
        "twice_right_first",
        "",
        b"\x00\x01\x00\x30\x21\x12\xA4\x42\x00\x00\x00\x00\x00\x00\x00\x00\x00\x00\x00\x00\x00\x08\
        \x00\x14\xA7\x63\x30\x55\xF1\x9E\x4A\x77\xA9\xF1\x88\x71\xA1\x39\xE7\xE5\xAF\xC8\x80\x69\
        \x00\x08\x00\x14\x00\x00\x00\x00\x00\x00\x00\x00\x00\x00\x00\x00\x00\x00\x00\x00\x00\x00\
        \x00\x00",
        b"k",
    );
}

fn error(out: &mut Lines, name: &str, code: u16, phrase: &[u8]) {
    write!(out, "message {name} {code} ");
    out.put(phrase);
    writeln!(out);
}

// Behind a header of no attributes, in room for the longest of the values below.
fn written_back(out: &mut Lines, error: ErrorCode, phrase: &[u8]) {
    let mut buf = *b"\x01\x11\x00\x00!\x12\xA4B\x00\x01\x02\x03\x04\x05\x06\x07\x08\x09\x0A\x0B\
        ------------";
    write!(out, " {} {} ", error.code, error.reserved);
    let _ = write_error_code::append_error_code(&mut buf, error, phrase);
    out.hex(&buf[20..]);
    writeln!(out);
}

// The code and the reserved number of a value, and the attribute that they are written as with its phrase.
fn reserved(out: &mut Lines, name: &str, value: &[u8]) {
    write!(out, "message {name}");
    let id = TransactionId { bytes: [0; 12] };
    match read_typed::value_of(ERROR_CODE, value, id) {
        Ok(Value::Code(error)) => written_back(out, error, read_typed::part_of(ERROR_CODE, value)),
        _ => writeln!(out, " no code"),
    }
}

// The reserved bits: none (P9), all (P9), and some, with a phrase.
fn reserved_bits(out: &mut Lines) {
    reserved(out, "reserved_none", b"\x00\x00\x06\x00");
    reserved(out, "reserved_all", b"\xFF\xFF\xFE\x00");
    reserved(out, "reserved_some", b"\x5A\xA5\x5C\x01why");
}

// The named error codes, and the method.
fn redirected(out: &mut Lines) {
    error(
        out,
        "error_300",
        TryAlternate::CODEPOINT,
        &TryAlternate::PHRASE,
    );
    error(out, "error_400", BadRequest::CODEPOINT, &BadRequest::PHRASE);
}

fn unauthorized(out: &mut Lines) {
    error(
        out,
        "error_401",
        Unauthorized::CODEPOINT,
        &Unauthorized::PHRASE,
    );
    error(
        out,
        "error_420",
        UnknownAttribute::CODEPOINT,
        &UnknownAttribute::PHRASE,
    );
}

fn stale(out: &mut Lines) {
    error(out, "error_438", StaleNonce::CODEPOINT, &StaleNonce::PHRASE);
    error(
        out,
        "error_500",
        ServerError::CODEPOINT,
        &ServerError::PHRASE,
    );
}

fn binding(out: &mut Lines) {
    let name = "binding";
    writeln!(out, "message {name} {}", BINDING.code);
}

pub fn run(out: &mut Lines) {
    request(out);
    ipv4_response(out);
    ipv6_response(out);
    long_term_request(out);
    changed(out);
    no_integrity(out);
    key_0(out);
    key_64(out);
    key_65(out);
    twice(out);
    redirected(out);
    unauthorized(out);
    stale(out);
    reserved_bits(out);
    binding(out);
}
