//! Tests of what `lhash` does with images, by its public calls: they are built, loaded, read, drawn, migrated, and gone on
//! from.
#![tactic(auto)]

#[cfg(test)]
mod tests;
