// Typed append: a value that is judged by its type's rules, with padding of zeros.
#![tactic(auto)]

ghost use Rattle.std.specs.Prelude.{◌≡◌};
ghost use Rattle.registry.specs.Rows.{rfc5389};
ghost use Rattle.write_begin.specs.Begin.{written_said};
ghost use Rattle.write_raw.specs.Append.{answer, appended};
ghost use Rattle.write_typed.specs.Typed.{typed, refusal, text_refusal};

use registry::Rule;
use wire::refusal::Refusal;
use write_raw::append_unless;

// 23 where a value breaks the list of types or its further rule, else 0. A number, since it is the `wrong` of `append_value`, and what
// `cratehoist_refusal` answers to C.
pub fn refusal_of(kind: u16, value: &[u8]) -> u8
    ensures { result ≡ refusal rfc5389 kind value.now }
{
    match registry::fault(kind, value) {
        Ok(()) => 0,
        Err(_) => Refusal::VALUE.number,
    }
}

// Appends a value with padding of zeros, unless `wrong` refuses it: a number of the caller's own, as in `write_raw::append_unless`.
pub fn append_value(buf: &mut [u8], wrong: u8, kind: u16, value: &[u8]) -> Result<usize, Refusal>
    ensures { (written_said result ≡ written_said (answer buf.old wrong (typed kind value.now)))
        × (buf.new ≡ appended buf.old wrong (typed kind value.now)) }
{
    let zeros = [0u8; 3];
    let m = (4 - value.len() % 4) % 4;
    append_unless(buf, wrong, kind, value, &zeros[..m])
}

// The same of a text, and 23 where its type is no text's.
fn text_refusal(kind: u16, text: &[u8]) -> u8
    ensures { result ≡ text_refusal rfc5389 kind text.now }
{
    match registry::entry_rule(registry::entry_of(kind)) {
        Rule::Text => refusal_of(kind, text),
        _ => Refusal::VALUE.number,
    }
}

// Appends a text, of any type whose rule is that of texts.
pub fn append_text(buf: &mut [u8], kind: u16, text: &[u8]) -> Result<usize, Refusal>
    ensures { (written_said result ≡ written_said (answer buf.old (text_refusal rfc5389 kind text.now) (typed kind text.now)))
        × (buf.new ≡ appended buf.old (text_refusal rfc5389 kind text.now) (typed kind text.now)) }
{
    append_value(buf, text_refusal(kind, text), kind, text)
}

// Appends UNKNOWN-ATTRIBUTES: the types as they stand in a value, each two bytes, the first the higher.
pub fn append_unknown_attributes(buf: &mut [u8], types: &[u8]) -> Result<usize, Refusal>
    ensures { (written_said result ≡ written_said (answer buf.old (refusal rfc5389 0x000A types.now) (typed 0x000A types.now)))
        × (buf.new ≡ appended buf.old (refusal rfc5389 0x000A types.now) (typed 0x000A types.now)) }
{
    append_value(buf, refusal_of(0x000A, types), 0x000A, types)
}
