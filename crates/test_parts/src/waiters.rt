//! Tests of threads that wait on endpoints, in both forms and both profiles.

mod both;
mod calls;
mod steps;
mod words;
