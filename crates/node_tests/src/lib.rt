//! Tests of kinds, positions, texts, drafts and makers.
#![tactic(auto)]

#[cfg(test)]
mod drafts;
#[cfg(test)]
mod keys;
#[cfg(test)]
mod kinds;
#[cfg(test)]
mod made;
#[cfg(test)]
mod positions;
#[cfg(test)]
mod texts;
