// Definitions and laws that every layer cites: tests, lists, big-endian numbers. No code of its own.
#![tactic(auto)]
