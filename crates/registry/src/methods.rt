// The method of RFC 5389 (section 3).
use wire::method::Method;

pub const BINDING: Method = Method { code: 0x0001 };
