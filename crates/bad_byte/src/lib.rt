// Which code byte refusal 6 tells (RULES 3.8): definitions and theorems, and no code. It knows neither registers nor a pc.

#![tactic(auto)]
