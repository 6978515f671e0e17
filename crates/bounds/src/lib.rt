// No code: the theorem that what is compiled has a size bounded by the sheet's, so that lent memory can be long enough, and what holds of
// every record and note of a finished form.
#![tactic(auto)]
