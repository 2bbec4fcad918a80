// Words and remarks in text.

pub fn is_blank(b: u8) -> bool {
    matches!(b, b'\t' | b'\r' | b' ')
}

pub fn is_comment(s: &[u8]) -> bool {
    s.starts_with(b"#")
}
