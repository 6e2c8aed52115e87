// Where a path is raised to become the next greater one (path/mod.rs): one search, from the back, serves the next greater path and the
// successor. Nothing here is open to a caller; see module `inner`.
#![tactic(auto)]

pub mod inner;

// Where a path is raised: a component is cut after its first bytes, and one byte put behind them.
#[derive(Clone, Copy)]
pub struct Place {
    pub component: usize,
    pub bytes: usize,
    pub last: u8,
}
