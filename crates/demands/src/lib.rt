// The three demands, and document 01's starred instances: stated and proved of the definitions that the contracts cite. No code.
#![tactic(auto)]
