// How many records each store has, and the ranges. Document 01, 'Units and stores'.

// The greatest number of each store; all are counted from 1.
pub const PROBE_COUNT: i64 = 3;

pub const AXIS_COUNT: i64 = 3;

pub const VALUE_COUNT: i64 = 20;

pub const TOOL_COUNT: i64 = 32;

pub const OFFSET_COUNT: i64 = 4;

// The range of each record: triggers and positions in u, wears and offsets in h.
pub const TRIGGER_LIMIT: i64 = 100_000;

pub const VALUE_LEAST: i64 = -32_768;

pub const VALUE_GREATEST: i64 = 32_767;

pub const WEAR_LIMIT: i64 = 2_000_000;

pub const OFFSET_LIMIT: i64 = 20_000_000;

pub const POSITION_LIMIT: i64 = 10_000_000;

pub const TOLERANCE_LIMIT: i64 = 1_000_000;

pub const WEIGHT_LIMIT: i64 = 1_000;
