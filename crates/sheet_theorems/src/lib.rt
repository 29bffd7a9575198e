// Theorems of the sheet's bytes, for a card maker who has nothing else: they tell the block of the list, whether the sheet operation, the
// program or an import wrote them; and the program prints a sheet or a refusal, told from the first byte. This crate has no functions.
#![tactic(auto)]
