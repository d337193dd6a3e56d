// The worked lines of document 01, and lines about addresses (document 02, (iii)), computed from the definitions that the contracts cite. No code of its own.
#![tactic(auto)]
