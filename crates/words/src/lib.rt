// Theory only: what words, occurrences, periods and maximal suffixes are. See specs/.
#![tactic(auto)]
