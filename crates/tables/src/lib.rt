// Which of several refusals a call gives, as one statement for every call; what a call leaves in a lent buffer; areas and ranges that are
// known by what they include; and what the bounds of areas and 3d ranges say where one includes nothing. All of it is stated in specs/.
// There is no code here.
#![tactic(auto)]
