//! `scalars`, `nested` and `names` test columns that are built value by value (`columns`),
//! `streams`, `checks` and `schemas` complete inputs. The lines are those of RFC 8259, written by
//! hand; decimals are those of Python's `decimal`.

mod checks;
mod columns;
mod names;
mod nested;
mod scalars;
mod schemas;
mod streams;
