//! Tests of the text of a journal, over the contracts of journal_text.
#![tactic(auto)]

#[cfg(test)]
mod bad_lines;
#[cfg(test)]
mod texts;
