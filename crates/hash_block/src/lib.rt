// Bytes as one block of 64.
#![tactic(auto)]

ghost use Rattle.std.specs.Prelude.{◌≡◌};
ghost use Rattle.hash_block.specs.Block.{block_of};

// The first bytes of s as one block, with zeros behind them where they are fewer than 64.
#[tactic(auto, using(crate::proofs::Filled::filled))]
pub fn block(s: &[u8]) -> [u8; 64]
    ensures { result ≡ block_of s.now }
{
    let n = s.len().min(64);
    let front = &s[..n];
    let mut b = [0; 64];
    b[..n].copy_from_slice(front);
    b
}
