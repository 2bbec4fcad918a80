// A table that is lent.
ghost use Rattle.crc_byte_tables.specs.Tables.{Steps};

// With the fact that it is one for steps of four and of eight bytes, as far as it goes.
#[derive(Clone, Copy)]
pub struct Table<'a> {
    pub rows: &'a [u32],
    pub ghost steps: { Steps rows.now },
}
