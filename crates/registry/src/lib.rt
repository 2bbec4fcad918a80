// The attributes of RFC 5389: one row for each kind, and what is wrong with a value.
#![tactic(auto)]

ghost use Rattle.std.specs.Prelude.{◌≡◌};
ghost use Rattle.registry.specs.Rows.{rule_number, entry_said, rule_in, look, rfc5389};
ghost use Rattle.registry.specs.Fault.{address_fault, text_fault, types_fault, code_fault, rule_fault, entry_fault, fault};
ghost use Rattle.wire.specs.Refusal.{refused_by};

use wire::refusal::Refusal;

pub mod errors;
pub mod methods;

// What a value owes besides its size, and how it is read and written.
#[derive(Clone, Copy, Debug, PartialEq, Eq)]
pub enum Rule {
    Plain,
    Address,
    XorAddress,
    Text,
    Code,
    Types,
}

// What an ERROR-CODE says beside its phrase; the reserved bits are a number up to 2,097,151.
#[derive(Clone, Copy, Debug, PartialEq, Eq)]
pub struct ErrorCode {
    pub code: u16,
    pub reserved: u32,
}

// One for each kind.
#[derive(Clone, Copy, Debug, PartialEq, Eq)]
pub struct Row {
    pub kind: u16,
    pub least: u16,
    pub greatest: u16,
    pub rule: Rule,
}

pub const KINDS: usize = 11;

pub const ROWS: [Row; KINDS] = [
    Row {
        kind: 0x0001,
        least: 8,
        greatest: 20,
        rule: Rule::Address,
    },
    Row {
        kind: 0x0006,
        least: 0,
        greatest: 512,
        rule: Rule::Text,
    },
    Row {
        kind: 0x0008,
        least: 20,
        greatest: 20,
        rule: Rule::Plain,
    },
    Row {
        kind: 0x0009,
        least: 4,
        greatest: 131,
        rule: Rule::Code,
    },
    Row {
        kind: 0x000A,
        least: 0,
        greatest: 65534,
        rule: Rule::Types,
    },
    Row {
        kind: 0x0014,
        least: 0,
        greatest: 127,
        rule: Rule::Text,
    },
    Row {
        kind: 0x0015,
        least: 0,
        greatest: 127,
        rule: Rule::Text,
    },
    Row {
        kind: 0x0020,
        least: 8,
        greatest: 20,
        rule: Rule::XorAddress,
    },
    Row {
        kind: 0x8022,
        least: 0,
        greatest: 127,
        rule: Rule::Text,
    },
    Row {
        kind: 0x8023,
        least: 8,
        greatest: 20,
        rule: Rule::Address,
    },
    Row {
        kind: 0x8028,
        least: 4,
        greatest: 4,
        rule: Rule::Plain,
    },
];

// What the list says of a type, where it has it.
pub fn entry_of(kind: u16) -> Option<Row>
    ensures { entry_said result ≡ entry_said (look rfc5389 kind) }
{
    ROWS.iter().find(|row| row.kind == kind).copied()
}

// The rule of an entry; a type that the list doesn't have is plain.
pub fn entry_rule(entry: Option<Row>) -> Rule
    ensures { rule_number result ≡ rule_number (rule_in entry) }
{
    match entry {
        None => Rule::Plain,
        Some(row) => row.rule,
    }
}

// Family 1 goes with 8 bytes and family 2 with 20.
#[tactic(auto, using(std::proofs::lemmas::Bool::Decides::nat_tests), unfolding(wire::specs::Refusal::refused_by, crate::specs::Fault::address_fault))]
fn address_fault(value: &[u8]) -> Result<(), Refusal>
    ensures { result ≡ refused_by (address_fault value.now) }
{
    match value.len() {
        8 if value[1] == 1 => Ok(()),
        20 if value[1] == 2 => Ok(()),
        8 | 20 => Err(Refusal::FAMILY),
        _ => Err(Refusal::SIZE),
    }
}

fn text_fault(text: &[u8]) -> Result<(), Refusal>
    ensures { result ≡ refused_by (text_fault text.now) }
{
    if !utf8::is_utf8(text) {
        return Err(Refusal::TEXT);
    }
    Ok(())
}

// Class 3 to 6 and number 0 to 99, before a phrase in UTF-8.
#[tactic(auto, using(std::proofs::lemmas::Bool::Decides::nat_tests), unfolding(wire::specs::Refusal::refused_by, crate::specs::Fault::code_fault))]
fn code_fault(value: &[u8]) -> Result<(), Refusal>
    ensures { result ≡ refused_by (code_fault value.now) }
{
    if value.len() < 4 {
        return Err(Refusal::SIZE);
    }
    let class = value[2] % 8;
    if class < 3 || 6 < class || 99 < value[3] {
        return Err(Refusal::CODE);
    }
    text_fault(&value[4..])
}

fn types_fault(types: &[u8]) -> Result<(), Refusal>
    ensures { result ≡ refused_by (types_fault types.now) }
{
    if types.len() % 2 != 0 {
        return Err(Refusal::SIZE);
    }
    Ok(())
}

fn rule_fault(rule: Rule, value: &[u8]) -> Result<(), Refusal>
    ensures { result ≡ refused_by (rule_fault rule value.now) }
{
    match rule {
        Rule::Plain => Ok(()),
        Rule::Address | Rule::XorAddress => address_fault(value),
        Rule::Code => code_fault(value),
        Rule::Types => types_fault(value),
        Rule::Text => text_fault(value),
    }
}

// What is wrong with a value by its type's entry: nothing, or the first of 11, 12, 13 and 14 that applies.
pub fn entry_fault(entry: Option<Row>, value: &[u8]) -> Result<(), Refusal>
    ensures { result ≡ refused_by (entry_fault entry value.now) }
{
    let Some(row) = entry else {
        return Ok(());
    };
    let size = value.len();
    if size < row.least as usize || (row.greatest as usize) < size {
        return Err(Refusal::SIZE);
    }
    rule_fault(row.rule, value)
}

// The same by the type.
pub fn fault(kind: u16, value: &[u8]) -> Result<(), Refusal>
    ensures { result ≡ refused_by (fault rfc5389 kind value.now) }
{
    entry_fault(entry_of(kind), value)
}
