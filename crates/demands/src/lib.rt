// Theory only: demands 2 and 3, for every mix of calls from preparing on. See specs/.
#![tactic(auto)]
