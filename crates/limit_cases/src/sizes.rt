// How many bytes things have, as docs/register.md says; each is evaluated when the crate is checked.
use checks::{BlockRow, PacketRow, PropertyRow, RuleRow};
use forms::{FlatRest, LongRest, Prefix, PrefixRow, Range, RangeRow};
use kinds::{Pair, SetRow};
use register::Register;
use search::Frame;
use std::mem::size_of;

// The rows of rests.
type LongRow = Pair<RangeRow, Pair<RangeRow, RangeRow>>;

type FlatRow = Pair<RangeRow, SetRow>;

const _: () = prove!(size_of::<Register<Prefix, LongRest>>() == 2592);

const _: () = prove!(size_of::<Register<Range, FlatRest>>() == 2584);

const _: () = prove!(size_of::<RuleRow<PrefixRow, LongRow>>() == 48);

const _: () = prove!(size_of::<BlockRow<PrefixRow>>() == 12);

const _: () = prove!(size_of::<PropertyRow<PrefixRow, LongRow>>() == 64);

const _: () = prove!(size_of::<Frame<PacketRow<PrefixRow, LongRow>>>() == 132);

const _: () = prove!(size_of::<Frame<PrefixRow>>() == 24);

const _: () = prove!(size_of::<RuleRow<RangeRow, FlatRow>>() == 36);

const _: () = prove!(size_of::<BlockRow<RangeRow>>() == 12);

const _: () = prove!(size_of::<PropertyRow<RangeRow, FlatRow>>() == 56);

const _: () = prove!(size_of::<Frame<PacketRow<RangeRow, FlatRow>>>() == 96);

const _: () = prove!(size_of::<Frame<RangeRow>>() == 24);
