// The sheet: document 02, Ask 1, and Ask 10: its k is 1. One expansion from all sites together gives each node the distance of its nearest site; a site's
// list, for one nearest, is then found along the arcs that keep to these distances, at the cost of its own region. The lent words are: the area of the
// expansion, 4 n | marks n | members n.
#![tactic(auto)]

pub mod list;
pub mod sheet;
pub mod sources;
