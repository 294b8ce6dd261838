// What is demanded of the code is in specs/: the three demands, stated of a call and of the tables that it leaves. There is no code here.
#![tactic(auto)]
