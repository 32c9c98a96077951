// Hire by the tick: what is counted of a journal, what it costs and how the bill is written. Definitions and theorems;
// the code stands in ticks, bills and biller.
#![tactic(auto)]
