//! Values, the containers that hold them at locators, and sets of locators.
#![tactic(auto)]

mod container;
mod element;
mod groups;
mod laws;
mod locator;
mod locator_set;
mod value;

pub use container::{Container, Source};
pub use groups::Group;
pub use hd_num::List;
pub use laws::{inserted_intersects, values_have_one_group};
pub use locator::Locator;
pub use locator_set::LocatorSet;
pub use value::Value;
