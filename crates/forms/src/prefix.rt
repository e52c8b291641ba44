// Prefixes of 32-bit addresses, as RFC 4632 has them.
ghost use Rattle.std.specs.Prelude.{◌≡◌, ◌-◌, ◌%◌, ◌^◌, ◌≤◌};

pub mod field_kind;

/// The addresses whose first `length` bits are those of `address`; the other bits of `address` are zero.
#[derive(Clone, Copy)]
pub struct Prefix {
    address: u32,
    length: u8,
    ghost short: { length ≤ 32 },
    ghost clean: { address % 2 ^ (32 - length) ≡ 0 },
}

/// A prefix as it lies in a table.
#[derive(Clone, Copy)]
pub struct PrefixRow {
    pub address: u32,
    pub length: u8,
}
