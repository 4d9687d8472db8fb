// The meaning of tables, rules and books: definitions and theorems alone, in specs/. No function stands here.
#![tactic(auto)]
