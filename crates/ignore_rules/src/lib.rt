//! Lists of ignore patterns: which paths are ignored, where the last pattern that matches decides.
//!
//! [`Rules::read`] reads the patterns' texts, and names the first that is no pattern. [`Rules::decide`]
//! answers whether a path is ignored. It takes no memory.
//!
//! ```rust
//! let mut texts = Vec::new(alloc);
//! for text in ["*.o", "!keep.o", "/build/"] {
//!     texts.push(String::from_str(alloc, text)?)?;
//! }
//! let rules = Rules::read(alloc, &texts, false)?;
//! let path = Path::read(alloc, "x/keep.o")?;
//! let is_dir = false;
//! assert!(rt; !rules.decide(&path, is_dir));
//! ```
//!
//! The test `the_last_pattern_that_matches_decides` of `ignore_tests` makes these calls.
#![tactic(auto)]

mod rule_error;
mod rules;
mod vcs;

pub use rule_error::{BadRule, RuleError};
pub use rules::{MAX_RULES, Rules};
