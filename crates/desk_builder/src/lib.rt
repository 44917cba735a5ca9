// The builder's single calls and its build: any tables and any numbers may be handed in, and are judged first.
#![tactic(auto)]

pub mod calls;
