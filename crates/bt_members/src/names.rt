//! The names of members.
use bt_walk::Name;

pub const ADD_TO_CELL: Name = Name("addToCell", "add_to_cell");

pub const APPEND_VALUE: Name = Name("appendValue", "append_value");

pub const APPLY_LABEL_TRANSFORMER: Name = Name("applyLabelTransformer", "apply_label_transformer");

pub const APP_PROFILE_ID: Name = Name("appProfileId", "app_profile_id");

pub const AUTHORIZED_VIEW_NAME: Name = Name("authorizedViewName", "authorized_view_name");

pub const AUTOMATED_BACKUP_POLICY: Name = Name("automatedBackupPolicy", "automated_backup_policy");

pub const BLOCK_ALL_FILTER: Name = Name("blockAllFilter", "block_all_filter");

pub const CELLS_PER_COLUMN_LIMIT_FILTER: Name = Name(
    "cellsPerColumnLimitFilter",
    "cells_per_column_limit_filter",
);

pub const CELLS_PER_ROW_LIMIT_FILTER: Name = Name(
    "cellsPerRowLimitFilter",
    "cells_per_row_limit_filter",
);

pub const CELLS_PER_ROW_OFFSET_FILTER: Name = Name(
    "cellsPerRowOffsetFilter",
    "cells_per_row_offset_filter",
);

pub const CHAIN: Name = Name("chain", "chain");

pub const CHANGE_STREAM_CONFIG: Name = Name("changeStreamConfig", "change_stream_config");

pub const CLUSTER_STATES: Name = Name("clusterStates", "cluster_states");

pub const COLUMN_FAMILIES: Name = Name("columnFamilies", "column_families");

pub const COLUMN_QUALIFIER: Name = Name("columnQualifier", "column_qualifier");

pub const COLUMN_QUALIFIER_REGEX_FILTER: Name = Name(
    "columnQualifierRegexFilter",
    "column_qualifier_regex_filter",
);

pub const COLUMN_RANGE_FILTER: Name = Name("columnRangeFilter", "column_range_filter");

pub const CONDITION: Name = Name("condition", "condition");

pub const CREATE: Name = Name("create", "create");

pub const DELETE_ALL_DATA_FROM_TABLE: Name = Name(
    "deleteAllDataFromTable",
    "delete_all_data_from_table",
);

pub const DELETE_FROM_COLUMN: Name = Name("deleteFromColumn", "delete_from_column");

pub const DELETE_FROM_FAMILY: Name = Name("deleteFromFamily", "delete_from_family");

pub const DELETE_FROM_ROW: Name = Name("deleteFromRow", "delete_from_row");

pub const DELETION_PROTECTION: Name = Name("deletionProtection", "deletion_protection");

pub const DROP: Name = Name("drop", "drop");

pub const END_KEY_CLOSED: Name = Name("endKeyClosed", "end_key_closed");

pub const END_KEY_OPEN: Name = Name("endKeyOpen", "end_key_open");

pub const END_QUALIFIER_CLOSED: Name = Name("endQualifierClosed", "end_qualifier_closed");

pub const END_QUALIFIER_OPEN: Name = Name("endQualifierOpen", "end_qualifier_open");

pub const END_TIMESTAMP_MICROS: Name = Name("endTimestampMicros", "end_timestamp_micros");

pub const END_VALUE_CLOSED: Name = Name("endValueClosed", "end_value_closed");

pub const END_VALUE_OPEN: Name = Name("endValueOpen", "end_value_open");

pub const ENTRIES: Name = Name("entries", "entries");

pub const FALSE_FILTER: Name = Name("falseFilter", "false_filter");

pub const FALSE_MUTATIONS: Name = Name("falseMutations", "false_mutations");

pub const FAMILY_NAME: Name = Name("familyName", "family_name");

pub const FAMILY_NAME_REGEX_FILTER: Name = Name(
    "familyNameRegexFilter",
    "family_name_regex_filter",
);

pub const FILTER: Name = Name("filter", "filter");

pub const FILTERS: Name = Name("filters", "filters");

pub const GC_RULE: Name = Name("gcRule", "gc_rule");

pub const GRANULARITY: Name = Name("granularity", "granularity");

pub const ID: Name = Name("id", "id");

pub const IDEMPOTENCY: Name = Name("idempotency", "idempotency");

pub const IGNORE_WARNINGS: Name = Name("ignoreWarnings", "ignore_warnings");

pub const INCREMENT_AMOUNT: Name = Name("incrementAmount", "increment_amount");

pub const INITIAL_SPLITS: Name = Name("initialSplits", "initial_splits");

pub const INTERLEAVE: Name = Name("interleave", "interleave");

pub const INTERSECTION: Name = Name("intersection", "intersection");

pub const KEY: Name = Name("key", "key");

pub const MATERIALIZED_VIEW_NAME: Name = Name("materializedViewName", "materialized_view_name");

pub const MAX_AGE: Name = Name("maxAge", "max_age");

pub const MAX_NUM_VERSIONS: Name = Name("maxNumVersions", "max_num_versions");

pub const MERGE_TO_CELL: Name = Name("mergeToCell", "merge_to_cell");

pub const MODIFICATIONS: Name = Name("modifications", "modifications");

pub const MUTATIONS: Name = Name("mutations", "mutations");

pub const NAME: Name = Name("name", "name");

pub const PAGE_SIZE: Name = Name("pageSize", "page_size");

pub const PAGE_TOKEN: Name = Name("pageToken", "page_token");

pub const PARENT: Name = Name("parent", "parent");

pub const PASS_ALL_FILTER: Name = Name("passAllFilter", "pass_all_filter");

pub const PREDICATE_FILTER: Name = Name("predicateFilter", "predicate_filter");

pub const REQUEST_STATS_VIEW: Name = Name("requestStatsView", "request_stats_view");

pub const RESTORE_INFO: Name = Name("restoreInfo", "restore_info");

pub const RETENTION_PERIOD: Name = Name("retentionPeriod", "retention_period");

pub const REVERSED: Name = Name("reversed", "reversed");

pub const ROWS: Name = Name("rows", "rows");

pub const ROWS_LIMIT: Name = Name("rowsLimit", "rows_limit");

pub const ROW_KEY: Name = Name("rowKey", "row_key");

pub const ROW_KEYS: Name = Name("rowKeys", "row_keys");

pub const ROW_KEY_PREFIX: Name = Name("rowKeyPrefix", "row_key_prefix");

pub const ROW_KEY_REGEX_FILTER: Name = Name("rowKeyRegexFilter", "row_key_regex_filter");

pub const ROW_KEY_SCHEMA: Name = Name("rowKeySchema", "row_key_schema");

pub const ROW_RANGES: Name = Name("rowRanges", "row_ranges");

pub const ROW_SAMPLE_FILTER: Name = Name("rowSampleFilter", "row_sample_filter");

pub const RULES: Name = Name("rules", "rules");

pub const SET_CELL: Name = Name("setCell", "set_cell");

pub const SINK: Name = Name("sink", "sink");

pub const START_KEY_CLOSED: Name = Name("startKeyClosed", "start_key_closed");

pub const START_KEY_OPEN: Name = Name("startKeyOpen", "start_key_open");

pub const START_QUALIFIER_CLOSED: Name = Name("startQualifierClosed", "start_qualifier_closed");

pub const START_QUALIFIER_OPEN: Name = Name("startQualifierOpen", "start_qualifier_open");

pub const START_TIMESTAMP_MICROS: Name = Name("startTimestampMicros", "start_timestamp_micros");

pub const START_VALUE_CLOSED: Name = Name("startValueClosed", "start_value_closed");

pub const START_VALUE_OPEN: Name = Name("startValueOpen", "start_value_open");

pub const STATS: Name = Name("stats", "stats");

pub const STRIP_VALUE_TRANSFORMER: Name = Name("stripValueTransformer", "strip_value_transformer");

pub const TABLE: Name = Name("table", "table");

pub const TABLE_ID: Name = Name("tableId", "table_id");

pub const TABLE_NAME: Name = Name("tableName", "table_name");

pub const TIMESTAMP_MICROS: Name = Name("timestampMicros", "timestamp_micros");

pub const TIMESTAMP_RANGE_FILTER: Name = Name("timestampRangeFilter", "timestamp_range_filter");

pub const TIME_RANGE: Name = Name("timeRange", "time_range");

pub const TRUE_FILTER: Name = Name("trueFilter", "true_filter");

pub const TRUE_MUTATIONS: Name = Name("trueMutations", "true_mutations");

pub const UNION: Name = Name("union", "union");

pub const UPDATE: Name = Name("update", "update");

pub const UPDATE_MASK: Name = Name("updateMask", "update_mask");

pub const VALUE: Name = Name("value", "value");

pub const VALUE_RANGE_FILTER: Name = Name("valueRangeFilter", "value_range_filter");

pub const VALUE_REGEX_FILTER: Name = Name("valueRegexFilter", "value_regex_filter");

pub const VALUE_TYPE: Name = Name("valueType", "value_type");

pub const VIEW: Name = Name("view", "view");
