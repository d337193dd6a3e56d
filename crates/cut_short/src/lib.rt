// What is missing from what is cut short: of streams, messages and both writers (document 02, (v)). No code of its own.
#![tactic(auto)]
