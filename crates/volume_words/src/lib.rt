// The answer words of the calls on a volume. Here are their definitions alone: `answer` and `volume_facts` have the code.

#![tactic(auto)]
