//! The members of each message, in byte order of their JSON names. A member that is not built yet is
//! not supported.
ghost use Rattle.std.specs.Prelude.{◌≡◌, map};
ghost use Rattle.bt_walk.specs.Shapes.{seen};
ghost use Rattle.bt_members.specs.Tables.{call_members_of, data_members_of, filter_members_of};

use crate::{kinds, names};
use bt_walk::{Many, Member, Schema, Shape, Support};

macro_rules! member {
    ($name:ident, $many:expr, $shape:expr, $choice:literal, $support:expr) => {
        Member {
            name: names::$name,
            many: $many,
            shape: $shape,
            choice: $choice,
            support: $support,
        }
    };
}

// A member of one value.
macro_rules! one {
    ($name:ident, $shape:expr) => {
        member!($name, Many::One, $shape, 0, Support::Full)
    };
}

macro_rules! list {
    ($name:ident, $shape:expr) => {
        member!($name, Many::List, $shape, 0, Support::Full)
    };
}

macro_rules! map {
    ($name:ident, $shape:expr) => {
        member!($name, Many::Map, $shape, 0, Support::Full)
    };
}

// A member of a oneof, by the oneof's number.
macro_rules! choice {
    ($choice:literal, $name:ident, $shape:expr) => {
        member!($name, Many::One, $shape, $choice, Support::Full)
    };
}

// A member that is not supported, and the number of its oneof, or 0.
macro_rules! unsupported {
    ($choice:literal, $name:ident) => {
        member!($name, Many::One, Shape::Anything, $choice, Support::UnlessZero)
    };
}

/// The messages that requests are made of, by the numbers of `kinds`. A message of another number has
/// no members, and a list of another number no names.
pub struct Messages;

impl Schema for Messages {
    ghost use Rattle.bt_members.specs.Tables.{messages};

    ghost table = { λ _. messages };

    fn members(&self, message: u8) -> &'static [Member] {
        match message {
            kinds::CREATE_TABLE => &CREATE_TABLE,
            kinds::TABLE => &TABLE,
            kinds::COLUMN_FAMILY => &COLUMN_FAMILY,
            kinds::SPLIT => &SPLIT,
            kinds::GC_RULE => &GC_RULE,
            kinds::RULES => &RULES,
            kinds::CHANGE_STREAM_CONFIG => &CHANGE_STREAM_CONFIG,
            kinds::GET_TABLE => &GET_TABLE,
            kinds::LIST_TABLES => &LIST_TABLES,
            kinds::DELETE_TABLE => &DELETE_TABLE,
            kinds::UPDATE_TABLE => &UPDATE_TABLE,
            kinds::MODIFY_COLUMN_FAMILIES => &MODIFY_COLUMN_FAMILIES,
            kinds::MODIFICATION => &MODIFICATION,
            kinds::DROP_ROW_RANGE => &DROP_ROW_RANGE,
            _ => data_members(message),
        }
    }

    fn names(&self, list: u8) -> &'static str {
        match list {
            kinds::GRANULARITIES => "TIMESTAMP_GRANULARITY_UNSPECIFIED,MILLIS",
            kinds::STATS_VIEWS => {
                "REQUEST_STATS_VIEW_UNSPECIFIED,REQUEST_STATS_NONE,REQUEST_STATS_FULL"
            }
            kinds::SUPPORTED_STATS_VIEWS => "REQUEST_STATS_VIEW_UNSPECIFIED,REQUEST_STATS_NONE",
            _ => "",
        }
    }
}

// The messages of `google.bigtable.v2`.
fn data_members(message: u8) -> &'static [Member]
    ensures { map seen result.now ≡ data_members_of message }
{
    match message {
        kinds::READ_ROWS => &READ_ROWS,
        kinds::MUTATE_ROW => &MUTATE_ROW,
        kinds::MUTATION => &MUTATION,
        kinds::SET_CELL => &SET_CELL,
        kinds::MUTATE_ROWS => &MUTATE_ROWS,
        kinds::ENTRY => &ENTRY,
        kinds::DELETE_FROM_COLUMN => &DELETE_FROM_COLUMN,
        kinds::TIMESTAMP_RANGE => &TIMESTAMP_RANGE,
        kinds::DELETE_FROM_FAMILY => &DELETE_FROM_FAMILY,
        kinds::DELETE_FROM_ROW => &[],
        _ => call_members(message),
    }
}

// The messages of sets of rows, and of the calls that read a row before they change it.
fn call_members(message: u8) -> &'static [Member]
    ensures { map seen result.now ≡ call_members_of message }
{
    match message {
        kinds::ROW_SET => &ROW_SET,
        kinds::ROW_RANGE => &ROW_RANGE,
        kinds::CHECK_AND_MUTATE_ROW => &CHECK_AND_MUTATE_ROW,
        kinds::READ_MODIFY_WRITE_ROW => &READ_MODIFY_WRITE_ROW,
        kinds::READ_MODIFY_WRITE_RULE => &READ_MODIFY_WRITE_RULE,
        _ => filter_members(message),
    }
}

// The messages of filters.
fn filter_members(message: u8) -> &'static [Member]
    ensures { map seen result.now ≡ filter_members_of message }
{
    match message {
        kinds::ROW_FILTER => &ROW_FILTER,
        kinds::FILTERS => &FILTERS,
        kinds::CONDITION => &CONDITION,
        kinds::COLUMN_RANGE => &COLUMN_RANGE,
        kinds::VALUE_RANGE => &VALUE_RANGE,
        _ => &[],
    }
}

static CREATE_TABLE: [Member; 4] = [
    list!(INITIAL_SPLITS, Shape::Of(kinds::SPLIT)),
    one!(PARENT, Shape::Text),
    one!(TABLE, Shape::Of(kinds::TABLE)),
    one!(TABLE_ID, Shape::Text),
];

static TABLE: [Member; 9] = [
    unsupported!(0, AUTOMATED_BACKUP_POLICY),
    one!(CHANGE_STREAM_CONFIG, Shape::Of(kinds::CHANGE_STREAM_CONFIG)),
    unsupported!(0, CLUSTER_STATES),
    map!(COLUMN_FAMILIES, Shape::Of(kinds::COLUMN_FAMILY)),
    unsupported!(0, DELETION_PROTECTION),
    one!(GRANULARITY, Shape::Enum(kinds::GRANULARITIES)),
    one!(NAME, Shape::Text),
    unsupported!(0, RESTORE_INFO),
    unsupported!(0, ROW_KEY_SCHEMA),
];

static COLUMN_FAMILY: [Member; 3] = [
    one!(GC_RULE, Shape::Of(kinds::GC_RULE)),
    unsupported!(0, STATS),
    unsupported!(0, VALUE_TYPE),
];

static SPLIT: [Member; 1] = [one!(KEY, Shape::Bytes)];

static READ_ROWS: [Member; 9] = [
    one!(APP_PROFILE_ID, Shape::Text),
    unsupported!(0, AUTHORIZED_VIEW_NAME),
    one!(FILTER, Shape::Of(kinds::ROW_FILTER)),
    unsupported!(0, MATERIALIZED_VIEW_NAME),
    member!(
        REQUEST_STATS_VIEW,
        Many::One,
        Shape::Enum(kinds::STATS_VIEWS),
        0,
        Support::Only(kinds::SUPPORTED_STATS_VIEWS)
    ),
    unsupported!(0, REVERSED),
    one!(ROWS, Shape::Of(kinds::ROW_SET)),
    one!(ROWS_LIMIT, Shape::Int64),
    one!(TABLE_NAME, Shape::Text),
];

static ROW_SET: [Member; 2] = [
    list!(ROW_KEYS, Shape::Bytes),
    list!(ROW_RANGES, Shape::Of(kinds::ROW_RANGE)),
];

static ROW_RANGE: [Member; 4] = [
    choice!(2, END_KEY_CLOSED, Shape::Bytes),
    choice!(2, END_KEY_OPEN, Shape::Bytes),
    choice!(1, START_KEY_CLOSED, Shape::Bytes),
    choice!(1, START_KEY_OPEN, Shape::Bytes),
];

static CHECK_AND_MUTATE_ROW: [Member; 7] = [
    one!(APP_PROFILE_ID, Shape::Text),
    unsupported!(0, AUTHORIZED_VIEW_NAME),
    list!(FALSE_MUTATIONS, Shape::Of(kinds::MUTATION)),
    one!(PREDICATE_FILTER, Shape::Of(kinds::ROW_FILTER)),
    one!(ROW_KEY, Shape::Bytes),
    one!(TABLE_NAME, Shape::Text),
    list!(TRUE_MUTATIONS, Shape::Of(kinds::MUTATION)),
];

static READ_MODIFY_WRITE_ROW: [Member; 5] = [
    one!(APP_PROFILE_ID, Shape::Text),
    unsupported!(0, AUTHORIZED_VIEW_NAME),
    one!(ROW_KEY, Shape::Bytes),
    list!(RULES, Shape::Of(kinds::READ_MODIFY_WRITE_RULE)),
    one!(TABLE_NAME, Shape::Text),
];

static READ_MODIFY_WRITE_RULE: [Member; 4] = [
    choice!(1, APPEND_VALUE, Shape::Bytes),
    one!(COLUMN_QUALIFIER, Shape::Bytes),
    one!(FAMILY_NAME, Shape::Text),
    choice!(1, INCREMENT_AMOUNT, Shape::Int64),
];

static MUTATE_ROW: [Member; 6] = [
    one!(APP_PROFILE_ID, Shape::Text),
    unsupported!(0, AUTHORIZED_VIEW_NAME),
    unsupported!(0, IDEMPOTENCY),
    list!(MUTATIONS, Shape::Of(kinds::MUTATION)),
    one!(ROW_KEY, Shape::Bytes),
    one!(TABLE_NAME, Shape::Text),
];

static MUTATION: [Member; 6] = [
    unsupported!(1, ADD_TO_CELL),
    choice!(1, DELETE_FROM_COLUMN, Shape::Of(kinds::DELETE_FROM_COLUMN)),
    choice!(1, DELETE_FROM_FAMILY, Shape::Of(kinds::DELETE_FROM_FAMILY)),
    choice!(1, DELETE_FROM_ROW, Shape::Of(kinds::DELETE_FROM_ROW)),
    unsupported!(1, MERGE_TO_CELL),
    choice!(1, SET_CELL, Shape::Of(kinds::SET_CELL)),
];

static SET_CELL: [Member; 4] = [
    one!(COLUMN_QUALIFIER, Shape::Bytes),
    one!(FAMILY_NAME, Shape::Text),
    one!(TIMESTAMP_MICROS, Shape::Int64),
    one!(VALUE, Shape::Bytes),
];

static GC_RULE: [Member; 4] = [
    choice!(1, INTERSECTION, Shape::Of(kinds::RULES)),
    choice!(1, MAX_AGE, Shape::Duration),
    choice!(1, MAX_NUM_VERSIONS, Shape::Int32),
    choice!(1, UNION, Shape::Of(kinds::RULES)),
];

static RULES: [Member; 1] = [list!(RULES, Shape::Of(kinds::GC_RULE))];

static CHANGE_STREAM_CONFIG: [Member; 1] = [one!(RETENTION_PERIOD, Shape::Duration)];

static GET_TABLE: [Member; 2] = [one!(NAME, Shape::Text), one!(VIEW, Shape::AnyEnum)];

static LIST_TABLES: [Member; 4] = [
    one!(PAGE_SIZE, Shape::Int32),
    one!(PAGE_TOKEN, Shape::Text),
    one!(PARENT, Shape::Text),
    one!(VIEW, Shape::AnyEnum),
];

static DELETE_TABLE: [Member; 1] = [one!(NAME, Shape::Text)];

static UPDATE_TABLE: [Member; 3] = [
    one!(IGNORE_WARNINGS, Shape::Bool),
    one!(TABLE, Shape::Of(kinds::TABLE)),
    one!(UPDATE_MASK, Shape::Text),
];

static MODIFY_COLUMN_FAMILIES: [Member; 3] = [
    one!(IGNORE_WARNINGS, Shape::Bool),
    list!(MODIFICATIONS, Shape::Of(kinds::MODIFICATION)),
    one!(NAME, Shape::Text),
];

static MODIFICATION: [Member; 5] = [
    choice!(1, CREATE, Shape::Of(kinds::COLUMN_FAMILY)),
    choice!(1, DROP, Shape::Bool),
    one!(ID, Shape::Text),
    choice!(1, UPDATE, Shape::Of(kinds::COLUMN_FAMILY)),
    unsupported!(0, UPDATE_MASK),
];

static DROP_ROW_RANGE: [Member; 3] = [
    choice!(1, DELETE_ALL_DATA_FROM_TABLE, Shape::Bool),
    one!(NAME, Shape::Text),
    choice!(1, ROW_KEY_PREFIX, Shape::Bytes),
];

static MUTATE_ROWS: [Member; 4] = [
    one!(APP_PROFILE_ID, Shape::Text),
    unsupported!(0, AUTHORIZED_VIEW_NAME),
    list!(ENTRIES, Shape::Of(kinds::ENTRY)),
    one!(TABLE_NAME, Shape::Text),
];

static ENTRY: [Member; 3] = [
    unsupported!(0, IDEMPOTENCY),
    list!(MUTATIONS, Shape::Of(kinds::MUTATION)),
    one!(ROW_KEY, Shape::Bytes),
];

static DELETE_FROM_COLUMN: [Member; 3] = [
    one!(COLUMN_QUALIFIER, Shape::Bytes),
    one!(FAMILY_NAME, Shape::Text),
    one!(TIME_RANGE, Shape::Of(kinds::TIMESTAMP_RANGE)),
];

static TIMESTAMP_RANGE: [Member; 2] = [
    one!(END_TIMESTAMP_MICROS, Shape::Int64),
    one!(START_TIMESTAMP_MICROS, Shape::Int64),
];

static DELETE_FROM_FAMILY: [Member; 1] = [one!(FAMILY_NAME, Shape::Text)];

static ROW_FILTER: [Member; 19] = [
    choice!(1, APPLY_LABEL_TRANSFORMER, Shape::Text),
    choice!(1, BLOCK_ALL_FILTER, Shape::Bool),
    choice!(1, CELLS_PER_COLUMN_LIMIT_FILTER, Shape::Int32),
    choice!(1, CELLS_PER_ROW_LIMIT_FILTER, Shape::Int32),
    choice!(1, CELLS_PER_ROW_OFFSET_FILTER, Shape::Int32),
    choice!(1, CHAIN, Shape::Of(kinds::FILTERS)),
    choice!(1, COLUMN_QUALIFIER_REGEX_FILTER, Shape::Bytes),
    choice!(1, COLUMN_RANGE_FILTER, Shape::Of(kinds::COLUMN_RANGE)),
    choice!(1, CONDITION, Shape::Of(kinds::CONDITION)),
    choice!(1, FAMILY_NAME_REGEX_FILTER, Shape::Text),
    choice!(1, INTERLEAVE, Shape::Of(kinds::FILTERS)),
    choice!(1, PASS_ALL_FILTER, Shape::Bool),
    choice!(1, ROW_KEY_REGEX_FILTER, Shape::Bytes),
    member!(
        ROW_SAMPLE_FILTER,
        Many::One,
        Shape::Anything,
        1,
        Support::UnlessNull
    ),
    choice!(1, SINK, Shape::Bool),
    choice!(1, STRIP_VALUE_TRANSFORMER, Shape::Bool),
    choice!(1, TIMESTAMP_RANGE_FILTER, Shape::Of(kinds::TIMESTAMP_RANGE)),
    choice!(1, VALUE_RANGE_FILTER, Shape::Of(kinds::VALUE_RANGE)),
    choice!(1, VALUE_REGEX_FILTER, Shape::Bytes),
];

static FILTERS: [Member; 1] = [list!(FILTERS, Shape::Of(kinds::ROW_FILTER))];

static CONDITION: [Member; 3] = [
    one!(FALSE_FILTER, Shape::Of(kinds::ROW_FILTER)),
    one!(PREDICATE_FILTER, Shape::Of(kinds::ROW_FILTER)),
    one!(TRUE_FILTER, Shape::Of(kinds::ROW_FILTER)),
];

static COLUMN_RANGE: [Member; 5] = [
    choice!(2, END_QUALIFIER_CLOSED, Shape::Bytes),
    choice!(2, END_QUALIFIER_OPEN, Shape::Bytes),
    one!(FAMILY_NAME, Shape::Text),
    choice!(1, START_QUALIFIER_CLOSED, Shape::Bytes),
    choice!(1, START_QUALIFIER_OPEN, Shape::Bytes),
];

static VALUE_RANGE: [Member; 4] = [
    choice!(2, END_VALUE_CLOSED, Shape::Bytes),
    choice!(2, END_VALUE_OPEN, Shape::Bytes),
    choice!(1, START_VALUE_CLOSED, Shape::Bytes),
    choice!(1, START_VALUE_OPEN, Shape::Bytes),
];
