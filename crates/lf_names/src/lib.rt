//! Names of library cells, sites, components and groups, and the patterns of DEF GROUPS.
//!
//! - `NameTable`: distinct names in first-seen order. A contract sees the list of the names.
//! - `PartitionedNames`: names with labels, looked up part by part. A contract sees the list of
//!   them, in some order.
//! - `Pattern`: a name in which `*` is any run of bytes. A contract sees its bytes.
//!
//! Names are bytes: upper and lower case differ.
//!
//! Used by most other crates.
//!
//! Modules, in reading order:
//!
//! - `stored_name`: the bytes of a name in a table
//! - `table`: a table of distinct names that it copies
//! - `borrowed`: a table of distinct borrowed names
//! - `entries`: the labels and lengths of labelled names
//! - `partitioned`: labelled names in parts, each looked up by itself
//! - `pattern`: the patterns of DEF GROUPS, and the names that they match
//!
//! From `crates/lf_tests_basics/src/names.rt`:
//!
//! ```
//! let mut table = NameTable::new(rt.alloc());
//! assert!(rt; table.is_empty());
//! let added = [table.add(b"a")?, table.add(b"b")?, table.add(b"a")?];
//! assert_eq!(rt; added, [Added::New(0), Added::New(1), Added::Present(0)]);
//! ```
#![tactic(auto)]

mod borrowed;
mod entries;
mod partitioned;
mod pattern;
mod stored_name;
mod table;

pub use partitioned::{Match, PartitionedNames};
pub use pattern::Pattern;
pub use table::{Added, NameTable};
