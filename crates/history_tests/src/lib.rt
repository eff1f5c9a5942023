//! Tests of `ra_book` and `ra_audit` through their public calls: what books keep, how they settle, and audits.
#![tactic(auto)]

#[cfg(test)]
mod audit_tests;
#[cfg(test)]
mod growth_in_histories;
#[cfg(test)]
mod kept_books;
#[cfg(test)]
mod settled_books;
