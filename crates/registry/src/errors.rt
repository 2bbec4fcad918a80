// The error codes that RFC 5389 section 15.6 names, each with its phrase: a type for each, as stun_codec has them
// (docs/MOVING-FROM-STUN-CODEC.md).

#[derive(Clone, Copy)]
pub struct TryAlternate {}

impl TryAlternate {
    pub const CODEPOINT: u16 = 300;

    pub const PHRASE: [u8; 13] = *b"Try Alternate";
}

#[derive(Clone, Copy)]
pub struct BadRequest {}

impl BadRequest {
    pub const CODEPOINT: u16 = 400;

    pub const PHRASE: [u8; 11] = *b"Bad Request";
}

#[derive(Clone, Copy)]
pub struct Unauthorized {}

impl Unauthorized {
    pub const CODEPOINT: u16 = 401;

    pub const PHRASE: [u8; 12] = *b"Unauthorized";
}

#[derive(Clone, Copy)]
pub struct UnknownAttribute {}

impl UnknownAttribute {
    pub const CODEPOINT: u16 = 420;

    pub const PHRASE: [u8; 17] = *b"Unknown Attribute";
}

#[derive(Clone, Copy)]
pub struct StaleNonce {}

impl StaleNonce {
    pub const CODEPOINT: u16 = 438;

    pub const PHRASE: [u8; 11] = *b"Stale Nonce";
}

#[derive(Clone, Copy)]
pub struct ServerError {}

impl ServerError {
    pub const CODEPOINT: u16 = 500;

    pub const PHRASE: [u8; 12] = *b"Server Error";
}
