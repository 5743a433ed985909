// sReg's events by the list of seconds alone, and the states that an hour can end in: definitions and theorems alone.
#![tactic(auto)]
