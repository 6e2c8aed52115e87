// Paths: every call on paths under one name (path/mod.rs).
#![tactic(auto)]

pub use builder::{Builder, Rejected};
pub use construction::{
    append, append_slice, from_slices, new_empty, new_from_iter, new_singleton,
};
pub use greatest::new_max;
pub use least::{greater_but_not_prefixed, singleton_range, successor};
pub use lent_path::{test, test_component, test_two};
pub use reading::{
    component, component_count, component_length, create_prefix, is_empty, path_length,
    path_length_of_prefix,
};
pub use relation::{
    compare, equal, is_prefix_of, is_prefixed_by, is_related, longest_common_prefix,
};
pub use writing::{write_component, write_longest_common_prefix, write_prefix};
