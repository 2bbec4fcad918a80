// The transaction ID: twelve bytes, by value.
#[derive(Clone, Copy, Debug, PartialEq, Eq)]
pub struct TransactionId {
    pub bytes: [u8; 12],
}
