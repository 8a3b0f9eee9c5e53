//! Aggregators of partial updates of sets, bags and counters, two of them as one, and the aggregation of a move (CoreASM).
#![tactic(auto)]

mod admission;
mod aggregation;
mod bag_agg;
mod bag_change;
mod bag_sums;
mod composition;
mod count_agg;
mod families;
mod groups;
mod pair;
mod puts;
mod result_list;
mod set_agg;
mod side;
mod stretches;

pub use admission::admit;
pub use aggregation::{aggregate, results};
pub use bag_agg::BagAgg;
pub use composition::{ComposeError, compose};
pub use count_agg::CountAgg;
pub use pair::{Pair, Standard, standard};
pub use puts::only_put;
pub use result_list::Results;
pub use set_agg::SetAgg;
