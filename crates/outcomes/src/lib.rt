// What the calls promise settles everything they answer and leave. No code.
#![tactic(auto)]
