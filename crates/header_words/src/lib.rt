// The answer words of the calls on the header of a file number. Here are their definitions alone: `answer` and `header_facts` have
// the code.

#![tactic(auto)]
