//! Worked cases, in tables. What each of them expects was reckoned by hand.

mod calls;
mod counts;
mod faults;
mod requests;
