// The worked examples of document 01 and of the requests, as theorems about the definitions. There is no code here:
// proofs/Table.antt, LimitTable.antt, InstallTable.antt, ScratchTable.antt and UnreachedTable.antt have them.
#![tactic(auto)]
