// No code: the theorem that the recorder in lent memory follows the rules' recorder, whatever is compiled.
#![tactic(auto)]
