// The two calls that change the table. Document 01, 'The table', with Ask 8: 'Insert adds one, remove takes one'.

// Which of the two. Callers match it, and pass no function: `Run` (demands, Demand3), `change_number` and `ChangeReady` (numbers) are stated for each kind.
#[derive(Clone, Copy, Debug, PartialEq, Eq)]
pub enum Kind {
    Insert,
    Remove,
}
