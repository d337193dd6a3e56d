// The message writer and the reader together: what is read is written back, what is written is read, and the pong that answers a ping. No code of its own.
#![tactic(auto)]
