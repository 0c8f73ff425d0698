//! What the log's rules come to over servers that lose pages.
#![tactic(auto)]
